//! The header of a text, which is ignored: every line up to and including that of `;redcode`.
ghost use Rattle.std.specs.Prelude.{◌≡◌, ◌≤◌, ◌&&◌, ◌||◌, codes, length};
ghost use Rattle.rc_text.specs.Bytes.{begins_with_word};
ghost use Rattle.rc_text.specs.Headers.{header_of};

use crate::bytes::begins_with_word;

/// The size of a header.
#[derive(Clone, Copy, Debug, PartialEq, Eq)]
pub struct Extent {
    pub bytes: usize,
    pub lines: u64,
}

// Measures the lines up to and including the first that begins with `;redcode`, in letters of any
// case (pMARS). Without such a line the header is empty.
pub(crate) fn header_of(text: &[u8]) -> Extent
    ensures value { result ≡ header_of text.now }
    ensures within { result.bytes ≤ length text.now }
    ensures lines { result.lines ≤ result.bytes }
{
    let mut begins = true;
    let mut found = false;
    let mut lines = 0;
    for i in 0..text.len() {
        let here = is_header_line(&text[i..], begins, found);
        begins = text[i] == b'\n';
        found = here && !begins;
        if begins {
            lines += 1;
            if here {
                return Extent {
                    bytes: i + 1,
                    lines,
                };
            }
        }
    }
    if found {
        Extent {
            bytes: text.len(),
            lines,
        }
    } else {
        Extent { bytes: 0, lines: 0 }
    }
}

// Returns whether the line at hand is the `;redcode` line. `rest` is what is left of the text,
// `begins` says that the line begins here, and `found` that the word was seen earlier in it.
fn is_header_line(rest: &[u8], begins: bool, found: bool) -> bool
    ensures { result ≡ (found || (begins && begins_with_word (codes ";redcode") rest.now)) }
{
    found || (begins && begins_with_word(b";redcode", rest))
}
