//! Texts with a counter.
ghost use Rattle.std.specs.Prelude.{◌≡◌, IfOk};
ghost use Rattle.swc_base_rename_naming.specs.Texts.{numbered as numbered_text};

use std::alloc::{AllocError, Global};
use swc_tree_items::Text;
use swc_tree_marks::JsWord;

/// The text itself at 0, else the text followed by the counter in decimal.
///
/// # Errors
///
/// `AllocError` where memory is refused.
pub fn numbered(alloc: Global, text: &str, n: usize) -> Result<JsWord, AllocError>
    ensures { IfOk result (λ made. made ≡ numbered_text text.now n) }
{
    if n == 0 {
        return Text::new(alloc, text);
    }
    Text::from_string(alloc, format!(in alloc; "{text}{n}")?)
}
