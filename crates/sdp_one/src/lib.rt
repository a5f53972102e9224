// No functions: of each public function, that no second answer satisfies its promise.
#![tactic(auto)]
