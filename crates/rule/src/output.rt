// Lines are gathered and written in large parts.
ghost use Rattle.std.specs.Prelude.{◌≡◌, ◌+◌, ◌≤◌, length, IfOk};

// A write failed. The kit's error has 96 bytes, which each call would clear and hand on through memory, and nobody reads it: a line of one mark took a
// quarter more instructions.
#[derive(Drop)]
pub(crate) struct Failed;

// What was not written yet stands at the start of the bytes. Each text has at most 24, and so has the line of a mark.
// Kept: bytes with a count. The kit's `ArrayVec` does not lend the room behind what it holds, so that each mark would be put elsewhere and then
// copied, and its `clear` writes over every byte that was sent.
// Kept: `rt` beside it in each call. An Output that holds the lent `rt` takes a lifetime and the type of `rt` into every signature in its place.
#[derive(Drop)]
pub(crate) struct Output<const N: usize> {
    bytes: [u8; N],
    used: usize,
    ghost within: { used ≤ N },
    ghost room: { 24 ≤ N },
}

impl<const N: usize> Output<N> {
    pub(crate) fn new() -> Output<N>
        requires { 24 ≤ N }
    {
        Output {
            bytes: [0; N],
            used: 0,
        }
    }

    // Writes what was gathered.
    pub(crate) fn send(&mut self, rt: &impl Print) -> Result<(), Failed>
        ensures { self.new.used ≡ 0 }
    {
        let used = self.used;
        self.used = 0;
        rt.write_all(&self.bytes[..used]).map_err(|_| Failed)
    }

    // Makes room for 24 bytes.
    fn make_room(&mut self, rt: &impl Print) -> Result<(), Failed>
        ensures { IfOk result (λ _. self.new.used + 24 ≤ N) }
    {
        if N - self.used < 24 {
            return self.send(rt);
        }
        Ok(())
    }

    // The line of a mark.
    pub(crate) fn mark(&mut self, rt: &impl Print, v: i32, x: i32) -> Result<(), Failed> {
        self.make_room(rt)?;
        let bytes = &mut self.bytes[..];
        self.used += line::put_mark(v, x, &mut bytes[self.used..]);
        Ok(())
    }

    // A text.
    pub(crate) fn text(&mut self, rt: &impl Print, s: &[u8]) -> Result<(), Failed>
        requires { length s.now ≤ 24 }
    {
        self.make_room(rt)?;
        let end = self.used + s.len();
        let bytes = &mut self.bytes[..];
        bytes[self.used..end].copy_from_slice(s);
        self.used = end;
        Ok(())
    }

    // A word and a number.
    pub(crate) fn entry(&mut self, rt: &impl Print, word: &[u8], n: u32) -> Result<(), Failed>
        requires { length word.now ≤ 24 }
    {
        self.text(rt, word)?;
        self.text(rt, decimal::natural_label(n).as_slice())?;
        self.text(rt, b"\n")
    }
}
