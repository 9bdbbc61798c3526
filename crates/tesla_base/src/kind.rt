//! Kinds of what is wrong with a file, each told by its name.

ghost use Rattle.std.specs.Prelude.{◌≡◌, List, ℕ};

/// What is wrong at a line or a place of a file. Its name is all that is printed of it.
pub trait Kind: Copy {
    /// The bytes of the name.
    ghost printed: { Self → List ℕ };

    /// The name.
    fn name(self) -> &'static str
        ensures { result.now ≡ printed self };
}
