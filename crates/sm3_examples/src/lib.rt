// The worked examples of GB/T 32905-2016, annex A, as theorems: specs/AnnexA.antt. No code.
#![tactic(auto)]
