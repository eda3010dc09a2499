//! What stands before the script of a resumed run: an options line or none, the text of a state, and a line of two hyphens.

ghost use Rattle.std.specs.Prelude.{◌≡◌, true, false, ◌+◌, ◌^◌, ◌<◌, ◌≤◌, ◌++◌, ◌∷◌, [], length, option_to_list, OnOk};

use ftp_text::Item;
use std::alloc::{AllocError, Global};

/// What stands before a script.
#[derive(Drop)]
pub struct Head {
    /// The options, where the first line is that of options.
    pub options: Option<Item>,
    /// The lines of the state, each with its line feed.
    pub text: Vec<u8>,
    /// How many lines the state has.
    pub lines: u64,
    /// Whether the line of two hyphens came.
    pub is_closed: bool,
    // Each line has at least its line feed.
    pub ghost counted: { lines ≤ length text.items },
}

impl Head {
    /// No line of a state came yet.
    pub fn new(alloc: Global, options: Option<Item>) -> Head
        ensures options { result.options ≡ options }
        ensures text { result.text.items ≡ [] }
        ensures lines { result.lines ≡ 0 }
        ensures open { result.is_closed ≡ false }
    {
        Head {
            options,
            text: Vec::new(alloc),
            lines: 0,
            is_closed: false,
        }
    }

    /// Adds a line of the state.
    pub fn add(&mut self, line: &[u8]) -> Result<(), AllocError>
        ensures text { OnOk result (self.new.text.items ≡ self.old.text.items ++ (line.now ++ 10 ∷ [])) }
        ensures lines { OnOk result (self.new.lines ≡ self.old.lines + 1) }
        ensures options { OnOk result (self.new.options ≡ self.old.options) }
        ensures open { OnOk result (self.new.is_closed ≡ self.old.is_closed) }
        ensures longer { OnOk result ((length self.old.text.items < length self.new.text.items) × (length self.new.text.items < 2 ^ 63)) }
    {
        self.text.extend_from_slice(line)?;
        self.text.push(b'\n')?;
        self.lines += 1;
        Ok(())
    }

    /// The line of two hyphens came.
    pub fn close(&mut self)
        ensures closed { self.new.is_closed ≡ true }
        ensures options { self.new.options ≡ self.old.options }
        ensures text { self.new.text.items ≡ self.old.text.items }
        ensures lines { self.new.lines ≡ self.old.lines }
    {
        self.is_closed = true;
    }

    /// How many lines stand before the state.
    pub fn first(&self) -> u64
        ensures place { result ≡ length (option_to_list self.now.options) }
        ensures small { result ≤ 1 }
    {
        match &self.options {
            Some(_) => 1,
            None => 0,
        }
    }

    /// The number of the line of two hyphens, or of the one that is missing behind the last.
    pub fn last(&self) -> u64
        ensures place { result ≡ length (option_to_list self.now.options) + self.now.lines + 1 }
        ensures small { result ≤ 2 ^ 63 + 1 }
    {
        self.first() + self.lines + 1
    }
}
