//! Calls and boots tell no worlds apart that are alike: `docs/rows.md`, "Alike".
ghost use Rattle.world_laws.specs.Likeness.{AlikeByParts, AlikeInParts, QuietCallsAreAlike};
ghost use Rattle.world_laws.specs.Likeness.{BootsAreAlike, BootsAreAlikeInParts};
ghost use Rattle.world_laws.specs.Likeness.{CallsAreAlike, CallsAreAlikeInParts};

/// Lawful worlds are alike exactly when the same is stored of them and the same runs in them.
pub fn alike_worlds_have_the_same_parts()
    ensures parts { AlikeInParts }
    ensures alike { AlikeByParts }
{}

/// Each call and each boot has the same reply in worlds of which the same is stored and the same runs, and leads to such
/// worlds.
pub fn worlds_of_the_same_parts_stay_so()
    ensures calls { CallsAreAlikeInParts }
    ensures boots { BootsAreAlikeInParts }
{}

/// Each call has the same reply in worlds that are alike, and leads to worlds that are alike.
pub fn calls_tell_no_alike_worlds_apart()
    ensures { CallsAreAlike }
{}

/// Each boot has the same reply in worlds that are alike, and leads to worlds that are alike.
pub fn boots_tell_no_alike_worlds_apart()
    ensures { BootsAreAlike }
{}

/// Calls that never change a session have the same replies in worlds that are alike, and lead to worlds that are alike.
pub fn quiet_calls_tell_no_alike_worlds_apart()
    ensures { QuietCallsAreAlike }
{}
