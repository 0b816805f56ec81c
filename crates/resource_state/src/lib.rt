// The next state of a stack, a balance or a meter: the port of resource_state.rs, and of apply_stack, apply_balance and
// apply_meter of transition.rs. A text is named, not copied: it is written from the sheet that has it.
#![tactic(auto)]

mod amounts;
pub mod holding;
pub mod meter;

use amount::Amount;

// A text of the next state: that of a field of the state, or of the input. Each has a name, so it is no Option.
#[derive(Clone, Copy)]
pub enum Part {
    State(u8),
    Input(u8),
}

#[derive(Clone, Copy)]
pub struct ConsumableStackState {
    pub subject: Part,
    pub quantity: Amount,
    pub unit: Part,
}

#[derive(Clone, Copy)]
pub struct FungibleBalanceState {
    pub subject: Part,
    pub balance: Amount,
    pub unit: Part,
}

#[derive(Clone, Copy)]
pub struct MeterState {
    pub subject: Part,
    pub remaining: Amount,
    pub maximum: Amount,
}

#[derive(Clone, Copy)]
pub enum ResourceState {
    ConsumableStack(ConsumableStackState),
    FungibleBalance(FungibleBalanceState),
    MeteredResource(MeterState),
}
