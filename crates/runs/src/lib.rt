// Runs computed to their ends: no function stands here. The documents' runs are specs/KnownRuns.antt, lists of calls and cuts proofs/Scenario.antt.
#![tactic(auto)]
