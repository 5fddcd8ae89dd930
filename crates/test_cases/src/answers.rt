//! What the libraries answer to a case.
use crate::files::tell_file;
use crate::ids::tell_id;
use crate::numbers::tell_number;
use crate::records::{tell_record, tell_share_of};
use crate::returns::tell_return;
use crate::shares::tell_shares;
use crate::splits::tell_pool;
use crate::told::Told;
use crate::works::tell_line;

/// Tells what a word asks, of the rest of its line, which is also given as the bytes that it writes, and of the body; whether there is
/// such a word.
pub fn answer(
    rt: &HostRuntime,
    told: &mut Told,
    word: &str,
    rest: &str,
    text: &[u8],
    body: &[u8],
) -> bool {
    if word == "share" {
        tell_share_of(told, text);
        return true;
    }
    let alloc = rt.alloc();
    tell_id(told, word, text)
        || tell_number(told, word, rest, text)
        || tell_record(alloc, told, word, rest, body)
        || tell_file(alloc, told, word, rest, body)
        || tell_return(alloc, told, word, body)
        || tell_pool(alloc, told, word, rest, body)
        || tell_line(rt, told, word, rest, body)
        || tell_shares(alloc, told, word, rest, body)
}
