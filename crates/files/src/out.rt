// The word OUT: the eight channels' files are named by it.
ghost use Rattle.std.specs.Prelude.{◌≡◌, ◌+◌, ◌<◌, ◌↔◌, [], ◌∷◌, ◌++◌, length, IfSome, IsNone};
ghost use Rattle.files.specs.declared.out.TheConstants.{OUT_MAX};

use arrayvec::ArrayVec;

// The longest path, with the 0 that ends it.
pub const PATH_MAX: usize = 4096;

// The longest OUT: a point, a digit and the 0 that ends a path go behind it.
pub const OUT_MAX: usize = PATH_MAX - 3;

// An OUT. No String: the program never stops for lack of memory.
#[derive(Drop)]
pub struct Out(ArrayVec<u8, OUT_MAX>);

impl Out {
    // None if the word is too long.
    pub fn of(word: &[u8]) -> Option<Out>
        ensures some { IfSome result (λ out. out.0.items ≡ word.now) }
        ensures none { IsNone result ↔ (OUT_MAX < length word.now) }
    {
        let mut out = ArrayVec::new();
        out.try_extend_from_slice(word).ok()?;
        Some(Out(out))
    }

    // The name of a channel's file. A channel is its number here, as it is the place in each array of the eight.
    pub fn name(&self, v: usize) -> ArrayVec<u8, PATH_MAX>
        requires { v < 8 }
        ensures { result.items ≡ self.now.0.items ++ 46 ∷ (48 + v) ∷ [] }
    {
        let mut name = ArrayVec::new();
        name.try_extend_from_slice(self.0.as_slice()).unwrap();
        name.push(b'.');
        name.push(b'0' + v as u8);
        name
    }
}
