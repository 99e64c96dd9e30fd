// The process calculus of the report (TR-070011): its definitions stand in specs/.
#![tactic(auto)]
