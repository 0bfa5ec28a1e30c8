//! Theorems about whole sessions of scripts, with parallel parts or without. Each function does nothing: its contract is a theorem.

ghost use Rattle.session_laws.specs.WholeSessions.{EachScriptHasASession, BegunSessionsGoOn, StoppedSessionsGoOn};

/// Each script has a lawful session, whatever its parallel parts ask: their threads may run one after another.
pub fn each_script_has_a_session()
    ensures { EachScriptHasASession }
{
    script_reader::laws::parts_have_few_threads();
}

/// What a session wrote before memory ran out, or before a gate stopped it, is the beginning of what some lawful session of the script writes: nothing
/// that was printed has to be taken back, whichever order the commands of its parts had.
pub fn begun_sessions_go_on()
    ensures begun { BegunSessionsGoOn }
    ensures stopped { StoppedSessionsGoOn }
{
    script_reader::laws::parts_have_few_threads();
}
