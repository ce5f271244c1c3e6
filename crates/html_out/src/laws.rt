//! Laws of the definitions that the crate's contracts cite. Each is the contract of a function that
//! does nothing.
ghost use Rattle.std.specs.Prelude.{ℕ, List, Bool, true, Contains};
ghost use Rattle.html_out.specs.Shown.{escaped};

/// No tag begins inside an escaped text, and no quotation mark ends an escaped value.
pub fn escaped_texts_stay_inside()
    ensures tag { (in_value : Bool) (text : List ℕ) → ¬ Contains (escaped in_value text) 60 }
    ensures quotation_mark { (text : List ℕ) → ¬ Contains (escaped true text) 34 }
{}
