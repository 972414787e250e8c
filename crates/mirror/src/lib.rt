// The mirror theorem has no code: it is stated over the rules that the calls promise, in specs/Mirror.
#![tactic(auto)]
