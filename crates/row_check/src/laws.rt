//! Laws on the rows of names.
ghost use Rattle.std.specs.Prelude.{◌≡◌, ◌≢◌, ◌∷◌, ◌<◌, ◌^◌, ℕ, List, None, if◌then◌else◌};
ghost use Rattle.std.specs.FinMap as fin;
ghost use Rattle.apex_base.specs.declared.numbers.Scale.{Scale};
ghost use Rattle.apex_base.specs.declared.numbers.SessionId.{SessionId};
ghost use Rattle.apex_base.specs.Held.{kept, is_target};
ghost use Rattle.apex_base.specs.Keys.{RowMap, file_front};
ghost use Rattle.apex_base.specs.Settled.{active_of, backup_of};
ghost use Rattle.apex_world.specs.Opened.{opened_sessions, path_in};
ghost use Rattle.row_check.specs.BadRows.{opened_rows, AgreesAt, DiffersAt};
ghost use Rattle.row_check.specs.RightRows.{has_own};

/// The rows of names are right if and only if they are what the sessions give.
pub fn names_have_what_sessions_give()
    ensures active { (m : RowMap) (scale : Scale)
        → ((name : List ℕ) → fin.get m (3 ∷ name) ≡ active_of (opened_sessions m) name) → AgreesAt m scale 3 }
    ensures not_active { (m : RowMap) (scale : Scale) (name : List ℕ)
        → fin.get m (3 ∷ name) ≢ active_of (opened_sessions m) name → DiffersAt m scale 3 }
    ensures backup { (m : RowMap) (scale : Scale)
        → ((name : List ℕ) → fin.get m (4 ∷ name) ≡ backup_of (opened_sessions m) name) → AgreesAt m scale 4 }
    ensures not_backup { (m : RowMap) (scale : Scale) (name : List ℕ)
        → fin.get m (4 ∷ name) ≢ backup_of (opened_sessions m) name → DiffersAt m scale 4 }
{}

/// The rows of files are those of kept modules, where the session of a module has it as the target of a part.
pub fn files_are_those_of_kept_modules()
    ensures { (m : RowMap) (scale : Scale) (id : SessionId) (part : ℕ) (path : List ℕ) → id.0 < 2 ^ 32
        → fin.get (opened_rows m scale) (file_front id part path)
        ≡ if is_target (kept (opened_sessions m)) id part then
        (if has_own (opened_sessions m) id part then path_in m id part path else None) else None }
{}
