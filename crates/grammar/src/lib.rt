// Rules as people type them: what they are made of, which texts are rules, what each becomes and means. There is no code here: the definitions
// are in specs/, and the theorems in specs/Typed.antt, specs/Sense.antt and specs/Examples.antt.
#![tactic(auto)]
