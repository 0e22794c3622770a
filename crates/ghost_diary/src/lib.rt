//! What only proofs see: a value, or a diary of what was noted. Neither has bytes, and their functions do nothing at run time.
#![tactic(auto)]

ghost use Rattle.std.specs.Prelude.{◌≡◌, ◌∷◌, [], List};
ghost use Rattle.std.specs.Borrow.{ftrue};

use std::marker::{Model, PhantomData};

/// What can be noted as a value of type `V`.
pub trait Noted<V> {
    // the value that it says
    ghost says: { Self → V };
}

// A value says itself.
impl<V> Noted<V> for V {
    ghost says = { λ value. value };
}

/// A value that only proofs read.
#[derive(Drop)]
pub struct Seen<V> {
    of: PhantomData<V>,
    ghost value: { V },
}

impl<V> Model for Seen<V> {
    ghost Value = { V };

    ghost coded = { V.code };

    ghost view = { λ seen. seen.value };

    ghost also_owns = { λ _. ftrue };
}

impl<V> Seen<V> {
    /// What a note says.
    #[inline(always)]
    pub fn of<N: Noted<V>>(_note: &N) -> Seen<V>
        ensures { result ≡ N.says _note.now }
    {
        Seen { of: PhantomData }
    }
}

/// What was noted so far, entry by entry. Only proofs read it.
#[derive(Drop)]
pub struct Diary<E> {
    of: PhantomData<E>,
    // the last one first
    pub ghost past: { List E },
}

impl<E> Model for Diary<E> {
    ghost also_owns = { λ _. ftrue };
}

impl<E> Diary<E> {
    /// Nothing so far.
    pub fn new() -> Diary<E>
        ensures { result.past ≡ [] }
    {
        Diary { of: PhantomData }
    }

    /// The same again.
    pub fn again(&self) -> Diary<E>
        ensures { result.past ≡ self.now.past }
    {
        Diary { of: PhantomData }
    }

    /// One entry more.
    #[inline(always)]
    pub fn then<N: Noted<E>>(&self, _note: &N) -> Diary<E>
        ensures { result.past ≡ N.says _note.now ∷ self.now.past }
    {
        Diary { of: PhantomData }
    }
}
