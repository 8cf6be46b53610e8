// A law of the sample plan, as the contract of a function that does nothing.

ghost use Rattle.std.specs.Prelude.{◌≡◌, Ok};
ghost use Rattle.camac_model.specs.Sample.{sample_plan};
ghost use Rattle.camac_plan.specs.Reading.{reading};
ghost use Rattle.camac_laws.specs.SampleText.{sample_text};

/// The plan that the text of examples/sample_plan.toml says is the one of the worked rows.
pub fn sample_text_is_read()
    ensures { reading sample_text ≡ Ok sample_plan }
{}
