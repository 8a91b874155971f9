//! What holds of fields without any call.
ghost use Rattle.afp_calls_grammar.specs.fields.Putting.{PutTogether};

/// What is put field by field is what the fields are together.
pub fn fields_are_put_together()
    ensures { PutTogether }
{}
