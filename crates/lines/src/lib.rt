// A page is written: bytes, words and decimal numbers, one after the other, in a lent buffer. What is written must fit; what stands
// before and after it stays.
#![tactic(auto)]

ghost use Rattle.std.specs.Prelude.{[], ◌∷◌, ◌≡◌};
ghost use Rattle.lines.specs.Text.{digits, spaced};
ghost use Rattle.lines.specs.Page.{Put, Room};

// A lent buffer, and the place where its text ends so far: what is written next begins there.
#[derive(Drop)]
pub struct Page<'a> {
    pub out: &'a mut [u8],
    pub end: usize,
}

impl<'a> Page<'a> {
    // A page with no text.
    pub fn new(out: &'a mut [u8]) -> Page<'a>
        ensures same_buffer { result.out.ghost_name ≡ out.entry.ghost_name }
        ensures kept { result.out.now ≡ out.old }
        ensures empty { result.end ≡ 0 }
    {
        Page { out, end: 0 }
    }

    // One byte.
    pub fn byte(&mut self, byte: u8)
        requires { Room self.old (byte ∷ []) }
        ensures { Put self.old (byte ∷ []) self.new }
    {
        self.out[self.end] = byte;
        self.end += 1;
    }

    // All bytes of a word.
    pub fn word(&mut self, word: &[u8])
        requires { Room self.old word.now }
        ensures { Put self.old word.now self.new }
    {
        let end = self.end + word.len();
        self.out[self.end..end].copy_from_slice(word);
        self.end = end;
    }

    // A number in decimal. It calls itself for the digits before the last: at most 20 calls deep.
    pub fn number(&mut self, n: usize)
        requires { Room self.old (digits n) }
        ensures { Put self.old (digits n) self.new }
    {
        if n >= 10 {
            self.number(n / 10);
        }
        self.byte(b'0' + (n % 10) as u8);
    }

    // Each of the numbers in decimal, with a space before it.
    pub fn spaced(&mut self, numbers: &[u8])
        requires { Room self.old (spaced numbers.now) }
        ensures { Put self.old (spaced numbers.now) self.new }
    {
        for &number in numbers {
            self.byte(b' ');
            self.number(usize::from(number));
        }
    }
}
