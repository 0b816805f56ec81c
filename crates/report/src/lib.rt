// The listing of a session's run, as text in a lent buffer.
#![tactic(auto)]

ghost use Rattle.std.specs.Prelude.{◌≡◌, ◌≤◌, length};
ghost use Rattle.writer.specs.Encode.{put_into};
ghost use Rattle.report.specs.Listing.{listing_of, length_in};

use session::running;

mod lines;
mod page;

// The listing of a session, and its length; 0, as C gets it, and no byte written where the buffer is too short. 4,608 bytes are always enough.
pub fn listing(session: &[u8], out: &mut [u8]) -> u16
    ensures { (result ≡ length_in (listing_of session.now) out.old)
        × (out.new ≡ put_into (listing_of session.now) out.old)
        × (length (listing_of session.now) ≤ 4608) }
{
    let run = running::run(session);
    // measured first, by writing it nowhere
    let mut nowhere = [0u8; 1];
    let len = lines::put_listing(&mut nowhere, &run);
    if out.len() < len {
        return 0;
    }
    lines::put_listing(out, &run) as u16
}
