// A run by words and a run by lines: definitions and their laws. No code.
#![tactic(auto)]
