// The bench program's work and the converter of archived texts, exported.
ghost use Rattle.std.specs.Prelude.{◌≡◌};
ghost use Rattle.limits.specs.Errors.{outcome_number, value_or};
ghost use Rattle.job_parser.specs.declared.Format.TheVariants.{J, N};
ghost use Rattle.job_converter.specs.Conversion.{conversion, output_after};
ghost use Rattle.job_text.specs.Answer.{answered, printed_number, printed_values};

// The answer to a job text at the start of the lent buffer, and its length. Refusal 9 where the buffer is shorter than an answer
// can be.
#[unsafe(no_mangle)]
pub extern "C" fn vokhsaot_answer_text(text: &[u8], out: &mut [u8], length: &mut usize) -> u32
    ensures value { result ≡ printed_number (answered text.now out.old).answer }
    ensures out_after { out.new ≡ (answered text.now out.old).out }
    ensures length_after { length.new ≡ value_or (printed_values (answered text.now out.old).answer) length.old }
{
    match job_text::answer(text, out) {
        Ok(count) => {
            *length = count;
            0
        }
        Err(code) => u32::from(code),
    }
}

// An archived text, which begins with J, as the N text with the smallest choice. Refusals 1, and 9 where the output has not two bytes more.
#[unsafe(no_mangle)]
pub extern "C" fn vokhsaot_convert_j_to_n(text: &[u8], out: &mut [u8]) -> u32
    ensures value { result ≡ outcome_number (conversion J N text.now out.old) }
    ensures out_after { out.new ≡ output_after J N text.now out.old }
{
    limits::outcome_number(job_converter::j_to_n(text, out))
}

// An N text with the smallest choice as the archived text. Refusals 1, 14 where it has the other choice, and 9 where the output has not two
// bytes less.
#[unsafe(no_mangle)]
pub extern "C" fn vokhsaot_convert_n_to_j(text: &[u8], out: &mut [u8]) -> u32
    ensures value { result ≡ outcome_number (conversion N J text.now out.old) }
    ensures out_after { out.new ≡ output_after N J text.now out.old }
{
    limits::outcome_number(job_converter::n_to_j(text, out))
}
