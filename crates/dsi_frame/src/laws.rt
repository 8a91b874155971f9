//! Laws of frames and streams. Their functions do nothing: the contract is the law.
ghost use Rattle.std.specs.Prelude.{◌≡◌, ◌++◌, ◌⊎◌, ℕ, List};
ghost use Rattle.afp_base.specs.Bytes.{IsBytes};
ghost use Rattle.dsi_frame.specs.Frame.{Frame, IsSpelling, IsGood, canonical_frame};
ghost use Rattle.dsi_frame.specs.Stream.{Begins, Framed, Stopped};
ghost use Rattle.dsi_frame.specs.declared.frame.Reason.{Reason};

/// Of any bytes at most one frame begins them, with one length.
pub fn one_frame()
    ensures frame { (bytes : List ℕ) (f g : Frame) → Begins bytes f → Begins bytes g → f ≡ g }
    ensures bytes { (first more other others : List ℕ) (f g : Frame) → IsSpelling first f → IsSpelling other g → first ++ more ≡ other ++ others → (first ≡ other) × (more ≡ others) }
{}

/// A good frame that was written is read again, whatever follows it.
pub fn read_again()
    ensures spelling { (f : Frame) → IsGood f → IsSpelling (canonical_frame f) f }
    ensures begins { (f : Frame) (more : List ℕ) → IsGood f → Begins (canonical_frame f ++ more) f }
{}

/// Every stream of bytes is frames and a rest that is less than a frame, or is frames up to a bad
/// header; it is not both, and there is one list of frames, with one rest, or one place and reason.
pub fn one_stream()
    ensures some { (bytes : List ℕ) → IsBytes bytes → ((frames : List Frame) × (rest : List ℕ) × Framed bytes frames rest) ⊎ ((frames : List Frame) × (at : ℕ) × (reason : Reason) × Stopped bytes frames at reason) }
    ensures exclusive { (bytes rest : List ℕ) (frames others : List Frame) (at : ℕ) (reason : Reason) → Framed bytes frames rest → Stopped bytes others at reason → ⊥ }
    ensures one_rest { (bytes rest other : List ℕ) (frames others : List Frame) → Framed bytes frames rest → Framed bytes others other → (frames ≡ others) × (rest ≡ other) }
    ensures one_stop { (bytes : List ℕ) (frames others : List Frame) (at place : ℕ) (reason other : Reason) → Stopped bytes frames at reason → Stopped bytes others place other → (frames ≡ others) × (at ≡ place) × (reason ≡ other) }
{}
