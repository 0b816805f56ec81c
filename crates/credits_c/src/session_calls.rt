// The exports of session_calls.
ghost use Rattle.std.specs.Prelude.{◌≡◌, ◌≤◌, length};
ghost use Rattle.writer.specs.Encode.{put_into};
ghost use Rattle.session.specs.Session.{run_of};
ghost use Rattle.report.specs.Listing.{listing_of, length_in};

use session::Run;

#[unsafe(no_mangle)]
pub extern "C" fn credits_session_run(session: &[u8]) -> Run
    ensures { result ≡ run_of session.now }
{
    credits::session_calls::credits_session_run(session)
}

#[unsafe(no_mangle)]
pub extern "C" fn credits_session_listing(session: &[u8], out: &mut [u8]) -> u16
    ensures { (result ≡ length_in (listing_of session.now) out.old)
        × (out.new ≡ put_into (listing_of session.now) out.old)
        × (length (listing_of session.now) ≤ 4608) }
{
    credits::session_calls::credits_session_listing(session, out)
}
