// A page of bytes, on which texts are written one after another. What finds no room is left out, and is an error.
ghost use Rattle.std.specs.Prelude.{◌≡◌, ◌≤◌, length};

use std::fmt;

#[derive(Drop)]
pub struct Page<'a> {
    bytes: &'a mut [u8],
    len: usize,
    ghost in_range: { len ≤ length bytes.now },
}

impl<'a> Page<'a> {
    pub fn new(bytes: &'a mut [u8]) -> Page<'a>
        ensures bytes { result.bytes.now ≡ bytes.old }
        ensures empty { result.len ≡ 0 }
    {
        Page { bytes, len: 0 }
    }

    // How many bytes are written.
    pub fn len(&self) -> usize
        ensures count { result ≡ self.now.len }
        ensures within { result ≤ length self.now.bytes.now }
    {
        self.len
    }

    // How many bytes there is room for in all.
    pub fn room(&self) -> usize
        ensures { result ≡ length self.now.bytes.now }
    {
        self.bytes.len()
    }

    fn put(&mut self, b: u8) -> fmt::Result
        ensures { length self.new.bytes.now ≡ length self.old.bytes.now }
    {
        if self.len < self.bytes.len() {
            self.bytes[self.len] = b;
            self.len += 1;
            return Ok(());
        }
        Err(fmt::Error)
    }

    // A text, as much of it as has room. The page is as long as before, also where the text had no room.
    pub fn text(&mut self, s: &str) -> fmt::Result
        ensures { length self.new.bytes.now ≡ length self.old.bytes.now }
    {
        for b in s.as_bytes() {
            self.put(*b)?;
        }
        Ok(())
    }
}

impl fmt::Write for Page<'_> {
    fn write_str(&mut self, s: &str) -> fmt::Result {
        self.text(s)
    }
}
