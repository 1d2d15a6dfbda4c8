//! Laws of slice headers. A law is a function that does nothing; its contract states it.
ghost use Rattle.vx_sh.specs.laws.Addresses.{AddressesAreBelow};
ghost use Rattle.vx_sh.specs.Depends.{KeptDepend, AllDepend, AllAreShown, KeptAreShown};
ghost use Rattle.vx_sh.specs.laws.Again.{SlicesReadAgain, SlicesRewrite};
ghost use Rattle.vx_sh.specs.Elsewhere.{SliceReadElsewhere};
ghost use Rattle.vx_sh.specs.laws.Enabled.{NoSliceFilter};
ghost use Rattle.vx_sh.specs.laws.Filter.{SliceHasFilter};
ghost use Rattle.vx_sh.specs.InForce.{SliceScopesAgree, SliceScopesAreWhole};
ghost use Rattle.vx_sh.specs.Reshaped.{ReshapedIsReadAgain, SlicesAgreeOnKept};
ghost use Rattle.vx_sh.specs.laws.Sizes.{NumbersAreBounded, SpellingIsShort};
ghost use Rattle.vx_sh.specs.Value.{FirstBitIsInside, NoProperPrefix, NumbersAreTold, ReadCanBeWritten, SpellingBegins, SpellingIsRead};

/// The kept fields of a slice header after the id of its subpicture depend only on kept fields. The other fields depend in
/// addition on a few with a star.
pub fn slices_depend()
    ensures kept { KeptDepend }
    ensures all { AllDepend }
{}

/// A slice header has only the named fields, and keeps exactly the kept ones.
pub fn slices_keep()
    ensures all { AllAreShown }
    ensures kept { KeptAreShown }
{}

/// If the same bits are read at scopes that agree, then they are the same slice header; and there is a header with its
/// kept fields and given other fields.
pub fn slices_go_again()
    ensures read { SlicesReadAgain }
    ensures rewritten { SlicesRewrite }
{}

/// If items are a slice header, then they determine whether the picture header is inside, the subpicture and the address.
pub fn numbers_are_told()
    ensures { NumbersAreTold }
{}

/// If a slice header is read, then its address is below the number of slices of its subpicture.
pub fn addresses_are_below()
    ensures { AddressesAreBelow }
{}

/// If a slice header was read, then it can be written.
pub fn read_can_be_written()
    ensures { ReadCanBeWritten }
{}

/// If a slice header is written, then it is read as the same header, whatever payload follows.
pub fn spelling_is_read()
    ensures read { SpellingIsRead }
    ensures begins { SpellingBegins }
{}

/// If two slice headers have different spellings, then neither is a proper prefix of the other.
pub fn no_proper_prefix()
    ensures { NoProperPrefix }
{}

/// If a rewritten slice header is written, then it is read as that header, whatever payload follows, and its kept fields are its
/// source's.
pub fn reshaped_is_read_again()
    ensures { ReshapedIsReadAgain }
{}

/// If sets and picture headers give some fields the same numbers, then slices under them are read at scopes that agree on these.
pub fn slice_scopes_agree()
    ensures agree { SliceScopesAgree }
    ensures whole { SliceScopesAreWhole }
{}

/// If bytes are a slice header at one place, then they are the same header at another that agrees with it for its subpicture.
pub fn slice_read_elsewhere()
    ensures { SliceReadElsewhere }
{}

/// If sets and picture headers have the same kept fields, then slices find the same numbers in them.
pub fn slices_agree_on_kept()
    ensures { SlicesAgreeOnKept }
{}

/// If a slice header has a filter, then it goes through under the sets of the slice.
pub fn slice_has_filter()
    ensures { SliceHasFilter }
{}

/// If bits are a slice header, then its first bit says whether the picture header is inside.
pub fn first_bit_is_inside()
    ensures { FirstBitIsInside }
{}

/// If the SPS doesn't enable the filter, then a slice header has none.
pub fn no_slice_filter()
    ensures { NoSliceFilter }
{}

/// If sets, picture header and layout have at most 32 extra bits, 15 active entries and 2^16 entry points, then a slice header
/// has at most 2^19 bytes.
pub fn spelling_is_short()
    ensures short { SpellingIsShort }
    ensures numbers { NumbersAreBounded }
{}
