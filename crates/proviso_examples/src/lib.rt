// No code: two lists of calls, each of which breaks one proviso of the replay and shows that it is needed, stand in specs/ExampleProvisos.antt.
#![tactic(auto)]
