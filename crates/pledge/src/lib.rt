// The fitter's pledge: any two results that an offered call's contract allows coincide, in proofs/.
#![tactic(auto)]
