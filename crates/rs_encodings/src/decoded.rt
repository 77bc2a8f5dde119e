//! A reader of the text of another reader's bytes.

ghost use Rattle.std.specs.Prelude.{◌≡◌, ◌≤◌, ◌++◌, [], ℕ, List, IfOk, OnOk, Some, false, length, option_map, true};
ghost use Rattle.std.specs.Io.{ReadsAtMost};
ghost use Rattle.std.specs.Io.KnownBytes.{IsAtEnd, Keeps, ReadConsumes};
ghost use Rattle.rs_encodings.specs.Forms.{text_in};
ghost use Rattle.rs_encodings.specs.Texts.{decoded};
ghost use Rattle.rs_encodings.specs.Waiting.{items, room};

use crate::character::first_character;
use crate::encoding::{Code, Encoding, Form, form_by_head};
use crate::window::Window;
use std::io;
use std::io::Read;

/// Reads the text of another reader's bytes as UTF-8.
///
/// Where the input is plain its bytes are passed on as they are, whatever they are. Of UTF-16 the mark is passed on too, as that of
/// UTF-8, and what is no character, a surrogate without its partner or a byte after the last unit, as the byte 255, which is in no UTF-8.
#[derive(Drop)]
pub struct Decoded<R> {
    inner: R,
    encoding: Encoding,
    // What is to be made of the input, once its head was read.
    form: Option<Form>,
    // What was read, and waits to be decoded.
    raw: Window,
    // What was decoded, and waits to be given.
    ready: Window,
}

// Decodes characters, as long as there is room for one more.
fn decode(code: Code, raw: &mut Window, ready: &mut Window, is_last: bool)
    requires fresh { items ready.old ≡ [] }
    requires room { room ready.old ≡ 4096 }
    requires enough { is_last ≡ false → 4 ≤ length (items raw.old) }
    ensures same { (rest : List ℕ) → (is_last ≡ true → rest ≡ []) → text_in code (items raw.old ++ rest) ≡ items ready.new ++ text_in code (items raw.new ++ rest) }
    ensures some { items ready.new ≡ [] → (items raw.new ≡ []) × (is_last ≡ true) }
{
    'characters: while ready.has_room() {
        match first_character(code, raw.as_slice(), is_last) {
            Some(first) => {
                ready.push_character(first.character);
                raw.consume(first.count);
            }
            None => return,
        }
    }
}

impl<R: Read> Decoded<R> {
    ghost use Rattle.rs_encodings.specs.Reading.{text_left};

    /// The text of this reader's bytes.
    pub fn new(inner: R, encoding: Encoding) -> Decoded<R>
        ensures { text_left R.remaining result ≡ option_map (decoded encoding) (R.remaining inner) }
    {
        Decoded {
            inner,
            encoding,
            form: None,
            raw: Window::new(),
            ready: Window::new(),
        }
    }

    // Reads the head of the input, where that was not done. Says what is to be made of the input.
    fn begin(&mut self) -> io::Result<Form>
        ensures same { Keeps (text_left R.remaining self.old) (text_left R.remaining self.new) }
        ensures form { IfOk result (λ form. self.new.form ≡ Some form) }
    {
        if let Some(form) = self.form {
            return Ok(form);
        }
        self.raw.gather(&mut self.inner)?;
        self.ready.clear();
        let form = form_by_head(self.encoding, self.raw.as_slice());
        self.form = Some(form);
        Ok(form)
    }

    // Reads where bytes are passed on.
    fn read_plain(&mut self, buf: &mut [u8]) -> io::Result<usize>
        requires { self.old.form ≡ Some Form.Plain }
        ensures bound { ReadsAtMost result buf.new }
        ensures bytes { ReadConsumes (text_left R.remaining self.old) (text_left R.remaining self.new) result buf.new }
    {
        if self.raw.is_empty() {
            self.inner.read(buf)
        } else {
            Ok(self.raw.give(buf))
        }
    }

    // Reads and decodes more, where nothing waits to be given.
    fn fill(&mut self, code: Code) -> io::Result<()>
        requires { self.old.form ≡ Some (Form.Coded code) }
        ensures same { Keeps (text_left R.remaining self.old) (text_left R.remaining self.new) }
        ensures form { self.new.form ≡ self.old.form }
        ensures end { OnOk result (items self.new.ready ≡ [] → IsAtEnd (text_left R.remaining self.new)) }
    {
        if !self.ready.is_empty() {
            return Ok(());
        }
        let is_last = self.raw.gather(&mut self.inner)?;
        self.ready.clear();
        decode(code, &mut self.raw, &mut self.ready, is_last);
        Ok(())
    }

    // Reads where characters are.
    fn read_coded(&mut self, code: Code, buf: &mut [u8]) -> io::Result<usize>
        requires { self.old.form ≡ Some (Form.Coded code) }
        ensures bound { ReadsAtMost result buf.new }
        ensures bytes { ReadConsumes (text_left R.remaining self.old) (text_left R.remaining self.new) result buf.new }
    {
        self.fill(code)?;
        Ok(self.ready.give(buf))
    }
}

impl<R: Read> Read for Decoded<R> {
    ghost use Rattle.rs_encodings.specs.Reading.{text_left};

    ghost remaining = { text_left R.remaining };

    fn read(&mut self, buf: &mut [u8]) -> io::Result<usize> {
        match self.begin()? {
            Form::Plain => self.read_plain(buf),
            Form::Coded(code) => self.read_coded(code, buf),
        }
    }
}
