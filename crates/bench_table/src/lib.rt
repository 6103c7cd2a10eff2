// The starred cases of 01's bench table. They are one statement over the definitions, in specs/Starred.antt; there is no code to run.
#![tactic(auto)]
