// No code: document 01's readings that are marked P, proved as one table in specs/.
#![tactic(auto)]
