//! What holds of the typed logs beside the group's machine.

ghost use Rattle.idle_log.specs.LogLaws.{AdoptsAtWitness, AdoptsHeld, AdoptsLost, Commits, Drops, Freezes, Heeds, HeedsBeats, Opens, Puts, Reports, Resumes, Serves};

/// What the calls of the logs make of their records and numbers is what the group's moves make of
/// them: what a source resumes and what a data server and a witness adopt; what an active log
/// takes, commits, applies, flushes and drops, where its leader opens and where its partner heeds;
/// what a server reports of its log when it joins a view, which leaves the log; and what is served
/// of it.
pub fn logs_are_the_groups()
    ensures resumes { Resumes }
    ensures held { AdoptsHeld }
    ensures lost { AdoptsLost }
    ensures witness { AdoptsAtWitness }
    ensures takes { Puts }
    ensures commits { Commits }
    ensures drops { Drops }
    ensures heeds { Heeds }
    ensures beats { HeedsBeats }
    ensures opens { Opens }
    ensures freezes { Freezes }
    ensures reports { Reports }
    ensures serves { Serves }
{}
