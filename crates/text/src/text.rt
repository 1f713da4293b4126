// A text: the first `len` bytes of a lent slice, which is its room. Whatever is written is written at its end.
ghost use Rattle.std.specs.Prelude.{◌≡◌, [], ◌∷◌, ◌++◌, ◌-◌, ◌≤◌, length, take, drop, replicate, cond};
ghost use Rattle.spec.specs.Out.{push, replace, beside};

use crate::buffer::{Full, drop_front, lift};

#[derive(Drop)]
pub struct Text<'a> {
    pub room: &'a mut [u8],
    pub len: usize,
    ghost fits: { len ≤ length room.now },
}

impl<'a> Text<'a> {
    ghost use Rattle.text.specs.Texts.{bytes, WritesTo};

    // What is written so far.
    pub fn bytes(&self) -> &[u8]
        ensures { result.now ≡ bytes self.now }
    {
        &self.room[..self.len]
    }

    // What stands in the room from `from` on.
    pub fn behind(&self, from: usize) -> &[u8]
        requires { from ≤ length self.now.room.now }
        ensures { result.now ≡ drop from self.now.room.now }
    {
        &self.room[from..]
    }

    // Appends a byte.
    pub fn push_byte(&mut self, b: u8) -> Result<(), Full>
        ensures { WritesTo self.old self.new result (push (b ∷ [])) }
    {
        if self.len == self.room.len() {
            return Err(Full);
        }
        self.room[self.len] = b;
        self.len += 1;
        Ok(())
    }

    // Appends a byte, if it is wanted.
    pub fn push_byte_if(&mut self, b: u8, wanted: bool) -> Result<(), Full>
        ensures { WritesTo self.old self.new result (push (cond wanted (b ∷ []) [])) }
    {
        if wanted {
            self.push_byte(b)?;
        }
        Ok(())
    }

    // Appends src.
    pub fn push_all(&mut self, src: &[u8]) -> Result<(), Full>
        ensures { WritesTo self.old self.new result (push src.now) }
    {
        if self.room.len() - self.len < src.len() {
            return Err(Full);
        }
        let end = self.len + src.len();
        // `copy_from_slice` would want `memcpy` from the host
        let to = &mut self.room[self.len..end];
        for (i, b) in src.iter().enumerate() {
            to[i] = *b;
        }
        self.len = end;
        Ok(())
    }

    // Appends n times b.
    pub fn push_repeated(&mut self, b: u8, n: usize) -> Result<(), Full>
        ensures { WritesTo self.old self.new result (push (replicate n b)) }
    {
        if self.room.len() - self.len < n {
            return Err(Full);
        }
        let end = self.len + n;
        self.room[self.len..end].fill(b);
        self.len = end;
        Ok(())
    }

    // Puts b at `at`, before what stands there.
    pub fn insert_byte(&mut self, at: usize, b: u8) -> Result<(), Full>
        requires { at ≤ self.old.len }
        ensures { WritesTo self.old self.new result (replace (λ t. take at t ++ (b ∷ drop at t))) }
    {
        if self.len == self.room.len() {
            return Err(Full);
        }
        lift(self.room, at, self.len - at, at + 1);
        self.room[at] = b;
        self.len += 1;
        Ok(())
    }

    // Appends a temporary that stands from `base` to the end of the room; in_being bytes of it count meanwhile.
    pub fn push_lifted(&mut self, base: usize, in_being: usize) -> Result<(), Full>
        requires { (self.old.len ≤ base) × (base ≤ length self.old.room.now) }
        ensures { WritesTo self.old self.new result (λ t. beside in_being (push (drop base self.old.room.now) t)) }
    {
        if base - self.len < in_being {
            return Err(Full);
        }
        let n = self.room.len() - base;
        drop_front(&mut self.room[self.len..], base - self.len, n);
        self.len += n;
        Ok(())
    }
}
