//! The caller's words as texts.

ghost use Rattle.std.specs.Prelude.{◌≡◌, IfOk, IfSome, IsNone, false, true, map, string_bytes};
ghost use Rattle.std.specs.Str.{is_utf8};
ghost use Rattle.leancop_c.specs.GivenFiles.{words_of};
ghost use Rattle.leancop_c.specs.Ran.{are_texts};

use crate::LeancopBytes;
use cop_base::NoMemory;
use std::alloc::Global;

// The text of a word, if it is one.
#[tactic(auto, using(crate::proofs::Texts::are_utf8, crate::proofs::Texts::not_utf8))]
fn text_of(alloc: Global, word: &[u8]) -> Result<Option<String>, NoMemory>
    ensures text { IfOk result (λ t. IfSome t (λ s. (string_bytes s ≡ word.now) × (is_utf8 word.now ≡ true))) }
    ensures no_text { IfOk result (λ t. IsNone t → is_utf8 word.now ≡ false) }
{
    match str::from_utf8(word) {
        Ok(text) => {
            let text = String::from_str(alloc, text)?;
            Ok(Some(text))
        }
        Err(_) => Ok(None),
    }
}

/// The texts of the words, if each is one.
pub fn texts_of(alloc: Global, words: &[LeancopBytes<'_>]) -> Result<Option<Vec<String>>, NoMemory>
    ensures texts { IfOk result (λ t. IfSome t (λ ts. map string_bytes ts.items ≡ words_of words.now)) }
    ensures no_texts { IfOk result (λ t. IsNone t → are_texts (words_of words.now) ≡ false) }
{
    let mut texts = Vec::new(alloc);
    for word in words {
        let read = text_of(alloc, word.bytes)?;
        let Some(text) = read else {
            return Ok(None);
        };
        texts.push(text)?;
    }
    Ok(Some(texts))
}
