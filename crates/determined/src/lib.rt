// No code: the law that each promise of the libraries determines its result, at every public function.
#![tactic(auto)]
