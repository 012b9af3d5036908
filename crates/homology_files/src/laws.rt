//! What holds of all certificates of homology. A call of one of these functions does nothing; its contract is the law.
ghost use Rattle.std.specs.Prelude.{◌≡◌, ◌++◌, Ok};
ghost use Rattle.text_scan.specs.Plain.{line_of};
ghost use Rattle.homology.specs.declared.certificate.HomologyCert.{HomologyCert};
ghost use Rattle.homology_files.specs.HomologyTexts.{answer_words, cert_of_text};
ghost use Rattle.homology_files.specs.WrittenTexts.{kind_in, cert_text, FitsHomologyFormat};

/// What was written reads back as the certificate that it was, alone and behind the line of its answer.
pub fn written_certificates_read_back()
    ensures alone { (certificate : HomologyCert) → FitsHomologyFormat certificate → cert_of_text (cert_text certificate) ≡ Ok certificate }
    ensures answered { (certificate : HomologyCert) → FitsHomologyFormat certificate
        → cert_of_text (line_of (answer_words (kind_in certificate)) ++ cert_text certificate) ≡ Ok certificate }
{}
