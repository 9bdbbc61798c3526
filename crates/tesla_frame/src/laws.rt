//! Laws about frames, as contracts of functions that do nothing.

ghost use Rattle.std.specs.Prelude.{◌≡◌, List, ℕ, Some};
ghost use Rattle.tesla_base.specs.Prefix.{AreBytes};
ghost use Rattle.tesla_frame.specs.Frame.{ChainsRise, Disclosure, Frame, IsFrame, KeysFrame};
ghost use Rattle.tesla_frame.specs.Reading.{frame_of};

/// Reading gives the frame that the bytes are, and each frame has one spelling.
pub fn frames()
    // What is read is spelled so.
    ensures found { (bytes : List ℕ) (frame : Frame) → AreBytes bytes → frame_of bytes ≡ Some frame → IsFrame bytes frame }
    // What is spelled so is read.
    ensures only { (bytes : List ℕ) (frame : Frame) → IsFrame bytes frame → frame_of bytes ≡ Some frame }
    // The chains of a disclosure rise, also in a list whose numbers aren't bytes.
    ensures rise { (bytes : List ℕ) (frame : KeysFrame) → frame_of bytes ≡ Some (Disclosure frame) → ChainsRise frame.rows }
{}
