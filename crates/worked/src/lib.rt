// Definitions and laws alone: the worked examples stand in specs/, computed by the checker.
#![tactic(auto)]
