//! Tables of words.

use case_table::{
    Cases, FaultWord, LimitWord, RefusalWord, RelationWord, RuleWord, case_of_its_word,
};
use std::test::Fail;

#[test]
fn words_of_relations(rt: HostRuntime) -> Result<(), Fail> {
    for (case, word) in [
        (RelationWord::Equal, "="),
        (RelationWord::NumberEqual, "=:="),
        (RelationWord::AtMost, "=<"),
        (RelationWord::Less, "<"),
        (RelationWord::AtLeast, ">="),
        (RelationWord::Greater, ">"),
    ] {
        assert_eq!(rt; case.word_of(), word);
        assert_eq!(rt; RelationWord::case_of(word), Some(case));
    }
    Ok(())
}

#[test]
fn words_that_no_case_has(rt: HostRuntime) -> Result<(), Fail> {
    for word in [
        "",
        "Unfold",
        "unfold ",
        "merg",
        "map",
        "script",
        "==",
        "no-clause",
        "utf-8",
    ] {
        assert_eq!(rt; RuleWord::case_of(word), None);
        assert_eq!(rt; RelationWord::case_of(word), None);
        assert_eq!(rt; RefusalWord::case_of(word), None);
        assert_eq!(rt; LimitWord::case_of(word), None);
        assert_eq!(rt; FaultWord::case_of(word), None);
    }
    Ok(())
}

#[test]
fn finds_each_case_by_its_word(rt: HostRuntime) -> Result<(), Fail> {
    assert_eq!(rt; case_of_its_word(RuleWord::At), Some(RuleWord::At));
    assert_eq!(rt;
        case_of_its_word(RelationWord::Less),
        Some(RelationWord::Less)
    );
    assert_eq!(rt;
        case_of_its_word(RefusalWord::Overflow),
        Some(RefusalWord::Overflow)
    );
    assert_eq!(rt; case_of_its_word(LimitWord::Chain), Some(LimitWord::Chain));
    assert_eq!(rt;
        case_of_its_word(FaultWord::NotUtf8),
        Some(FaultWord::NotUtf8)
    );
    assert_eq!(rt; FaultWord::case_of("not utf-8"), Some(FaultWord::NotUtf8));
    assert_eq!(rt;
        FaultWord::case_of("wrong sign"),
        Some(FaultWord::WrongSign)
    );
    assert_eq!(rt; RuleWord::case_of("useless"), Some(RuleWord::Useless));
    assert_eq!(rt;
        RefusalWord::case_of("head not variables"),
        Some(RefusalWord::HeadNotVariables)
    );
    Ok(())
}
