// Where a program prints. The first write that fails is kept, and nothing is written after it.
#![tactic(auto)]

ghost use Rattle.std.specs.Prelude.{◌≡◌, MatchOption, Some, None, IsOk, Err};

use std::fmt::Display;
use std::io;

#[derive(Drop)]
pub struct Out<P> {
    pub to: P,
    pub failed: Option<io::Error>,
}

impl<P: Print> Out<P> {
    pub fn new(to: P) -> Out<P>
        ensures { result.failed ≡ None }
    {
        Out { to, failed: None }
    }

    // Prints, where no write failed before.
    pub fn put(&mut self, text: &[u8])
        ensures { MatchOption self.old.failed (Unit {0}) (λ e. self.new.failed ≡ Some e) }
    {
        if self.failed.is_none() {
            self.failed = self.to.write_all(text).err();
        }
    }

    // What `write!` calls: one write for all of the text.
    pub fn write_fmt<D: Display + Drop>(&mut self, text: D)
        ensures { MatchOption self.old.failed (Unit {0}) (λ e. self.new.failed ≡ Some e) }
    {
        if self.failed.is_none() {
            self.failed = self.to.print(text).err();
        }
    }

    // The error of the write that failed, if one did.
    pub fn end(self) -> io::Result<()>
    where
        P: Drop,
        ensures { MatchOption self.failed (IsOk result) (λ e. result ≡ Err e) }
    {
        match self.failed {
            Some(e) => Err(e),
            None => Ok(()),
        }
    }
}
