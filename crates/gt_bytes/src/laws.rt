ghost use Rattle.gt_bytes.specs.Laws.{FieldsAreExact, FieldsAreReadAgain};

/// Each field that is read stands there as it is spelled, and each that stands there as it is spelled is read.
pub fn fields_are_exact()
    ensures { FieldsAreExact }
{}

/// Each field that was put is got again, whatever stands before and after it.
pub fn fields_are_read_again()
    ensures { FieldsAreReadAgain }
{}
