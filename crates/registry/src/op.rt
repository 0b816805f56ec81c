// Document 01's profiles and operations by their numbers, as C gives them: an enum would be the list once more, and a conversion that
// refuses the rest before `check` may.
pub const STACK: u8 = 1;

pub const BALANCE: u8 = 2;

pub const METER: u8 = 3;

pub const STACK_CREATE: u8 = 1;

pub const STACK_CREDIT: u8 = 2;

pub const STACK_DEBIT: u8 = 3;

pub const STACK_CONSUME: u8 = 4;

pub const STACK_TRANSFER: u8 = 5;

pub const STACK_RESERVE: u8 = 6;

pub const STACK_RELEASE: u8 = 7;

pub const STACK_EXPIRE: u8 = 8;

pub const STACK_ADJUST: u8 = 9;

pub const BALANCE_CREATE: u8 = 11;

pub const BALANCE_MINT: u8 = 12;

pub const BALANCE_CREDIT: u8 = 13;

pub const BALANCE_DEBIT: u8 = 14;

pub const BALANCE_TRANSFER: u8 = 15;

pub const BALANCE_RESERVE: u8 = 16;

pub const BALANCE_RELEASE: u8 = 17;

pub const BALANCE_SPEND: u8 = 18;

pub const BALANCE_BURN: u8 = 19;

pub const BALANCE_CONVERT: u8 = 20;

pub const METER_CREATE: u8 = 21;

pub const METER_CONSUME: u8 = 22;

pub const METER_REFILL: u8 = 23;

pub const METER_SET_MAXIMUM: u8 = 24;

pub const METER_RESET: u8 = 25;

pub const METER_EXPIRE: u8 = 26;
