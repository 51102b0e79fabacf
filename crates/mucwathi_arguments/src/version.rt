//! The version.

/// What was proved: the newest version of `CHANGELOG.md`, whose commit has it as a tag, since no file of a commit can name it; and the kit.
/// `tools/check_pages.py` holds both against the pages.
pub(crate) const VERSION: &str = "0.1.0 (rattle-kit-13f, logic dac8208d650f15bf)";
