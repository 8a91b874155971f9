//! Laws of scripts. Their functions do nothing: the contract is the law.
ghost use Rattle.std.specs.Prelude.{◌≡◌, ◌++◌, ℕ, List, Option, None, Some, All};
ghost use Rattle.afp_serial.specs.Went.{Step};
ghost use Rattle.dsi_frame.specs.Frame.{Frame};
ghost use Rattle.afp_server.specs.link.Did.{Did};
ghost use Rattle.afp_server.specs.link.Script.{Does, Script};
ghost use Rattle.afp_server.specs.declared.link.stage.FrameEnd.{FrameEnd};
ghost use Rattle.afp_server.specs.declared.link.stage.FrameEnd.TheVariants as ends;
ghost use Rattle.afp_server.specs.declared.link.stage.Stage.{Stage};
ghost use Rattle.afp_server.specs.declared.link.stage.Stage.TheVariants as stages;

/// A script that goes on and one that begins where it ended are one: what a link does with the frames of one piece
/// after another is what it does with all of them.
pub fn scripts_join()
    ensures { (block : List ℕ) (stage mid after : Stage) (frames others : List Frame) (asked more : List Step) (replies further : List Frame) (end : Option FrameEnd)
        → Script block stage frames asked replies mid None → Script block mid others more further after end
        → Script block stage (frames ++ others) (asked ++ more) (replies ++ further) after end }
{}

/// What a frame asks it asks at its moment, and behind an end of the session the link closes.
pub fn a_frame_is_timely()
    ensures moments { (block : List ℕ) (now : ℕ) (stage : Stage) (f : Frame) (did : Did) → Does block now stage f did → All (λ s. s.at ≡ now) did.steps }
    ensures closed { (block : List ℕ) (now : ℕ) (stage : Stage) (f : Frame) (did : Did) → Does block now stage f did → did.end ≡ Some ends.Closed → did.stage ≡ stages.Closing }
    ensures displaced { (block : List ℕ) (now : ℕ) (stage : Stage) (f : Frame) (did : Did) → Does block now stage f did → did.end ≡ Some ends.Displaced → did.stage ≡ stages.Closing }
{}
