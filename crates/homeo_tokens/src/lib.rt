//! From a text to its tokens, with each name as its index among the distinct names.
#![tactic(auto)]

mod lexeme;
mod numbering;
mod scanner;

pub use lexeme::{Lexeme, first_lexeme, is_space};
pub use numbering::Numbered;
pub use scanner::{ScanError, first_bad_byte, scan};
