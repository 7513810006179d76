// The rules of the guide's calls and of the questions put to them: all is in specs/.
#![tactic(auto)]
