//! What a log of records stands for, said once for the key log and the edit log. Definitions and lemmas alone, no code.
#![tactic(auto)]
