// No code: the definitions of the record text, and what is proved of them.
#![tactic(auto)]
