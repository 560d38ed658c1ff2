//! Labels that are a single name.
ghost use Rattle.std.specs.Prelude.{◌≡◌, [], IfSome, option_map};
ghost use Rattle.rc_expand.specs.Read.Lines.{label_token, plain_token};

use crate::read::words::is_unreserved_name;
use crate::tokens::{is_colon, is_unjoined};
use rc_text::Token;

// Returns the name of a label that is a single name, with or without its colon.
pub(crate) fn label_token<'a>(source: &[u8], label: &'a [Token]) -> Option<&'a Token>
    ensures { option_map (λ t. t.now) result ≡ label_token source.now label.now }
{
    match label {
        [token] => if is_unreserved_name(source, token) {
            Some(token)
        } else {
            None
        },
        [token, colon] => if is_unreserved_name(source, token) && is_colon(colon) {
            Some(token)
        } else {
            None
        },
        _ => None,
    }
}

// Returns the name of a label that is a single name written without `&`.
pub(crate) fn plain_token<'a>(source: &[u8], label: &'a [Token]) -> Option<&'a Token>
    ensures token { option_map (λ t. t.now) result ≡ plain_token source.now label.now }
    ensures written { IfSome result (λ t. t.now.joined ≡ []) }
{
    let name = label_token(source, label)?;
    if is_unjoined(name) { Some(name) } else { None }
}
