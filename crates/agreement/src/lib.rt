// Runs of a whole plant, made of the parties' rules. Its promises stand in specs/.
#![tactic(auto)]
