//! The theorems about the list of every record, each the contract of a function of its own:
//! specs/Theorems.antt.

ghost use Rattle.run_list.specs.Theorems as Theorems;

/// No list has more than `MAX_LIST` bytes, 4,057.
pub fn no_list_is_longer()
    ensures { Theorems.NoListIsLonger }
{}

/// The cost and the squared residual that a list prints are never NaN.
pub fn sums_are_never_nan()
    ensures { Theorems.SumsAreNeverNan }
{}

/// The first 34,560 bytes of a record, `MAX_RECORD + 1`, decide its list.
pub fn list_is_decided_by_a_prefix()
    ensures { Theorems.PrefixDecides }
{}

/// The run of a record that passes rows 14 and 15 is never refused by row 1 or 2.
pub fn no_row_before_3()
    ensures { Theorems.FromRow3 }
{}
