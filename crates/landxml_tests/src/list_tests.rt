//! What documents hold, whole, byte by byte and in all cuttings in two.

use crate::reading::wrong_cut;

// A survey's document, with elements and attributes that are skipped.
const SURVEY: &[u8] =
    b"<?xml version=\"1.0\" encoding=\"UTF-8\"?>\n<LandXML xmlns=\"http://www.landxml.org/schema/LandXML-1.2\" xmlns:xsi=\"http://www.w3.org/2001/XMLSchema-instance\" date=\"2024-03-05\" time=\"09:30:00\" version=\"1.2\" language=\"English\" readOnly=\"false\">\n<Units><Metric areaUnit=\"squareMeter\" linearUnit=\"meter\" volumeUnit=\"cubicMeter\" temperatureUnit=\"celsius\" pressureUnit=\"milliBars\"/></Units>\n<Project name=\"Bypass\"/>\n<Application name=\"Survey &amp; Design\"><Author company=\"A\"/></Application>\n<CgPoints><CgPoint name=\"1\">4512345.5 512340.25 101.0</CgPoint></CgPoints>\n<Surfaces>\n<Surface name=\"EG\" desc=\"existing ground\">\n<SourceData>\n<Breaklines><Breakline brkType=\"standard\" desc=\"kerb\"><PntList3D>4512300.000000000000 512300.000000000000 100.000000000000 4512310.000000000000 512310.000000000000 102.000499999999</PntList3D></Breakline></Breaklines>\n</SourceData>\n<Definition surfType=\"TIN\" area2DSurf=\"100.0\" elevMax=\"104.0\" elevMin=\"100.0\">\n<Pnts>\n<P id=\"1\">4512300.000000000000 512300.000000000000 100.000000000000</P>\n<P id=\"2\">4512300.000000000000 512310.000000000000 101.000500000000</P>\n<P id=\"3\">4512310.000000000000 512310.000000000000 102.000499999999</P>\n<P id=\"4\">4512310.0 512300.0 1.04E+02</P>\n</Pnts>\n<Faces><F>1 2 3</F><F i=\"1\">1 3 4</F></Faces>\n</Definition>\n</Surface>\n</Surfaces>\n</LandXML>\n";

const SURVEY_LISTS: &str =
    "Meter\nsurface EG at 566\ntriple 4512300000 512300000 100000 at 687 708 728\ntriple 4512310000 512310000 102000 at 745 766 786\ntriple 4512300000 512300000 100000 at 950 971 991\ntriple 4512300000 512310000 101001 at 1022 1043 1063\ntriple 4512310000 512310000 102000 at 1094 1115 1135\ntriple 4512310000 512300000 104000 at 1166 1176 1185\nBreakline at 634: t0 t1\nid 1 at 940 of t2\nid 2 at 1012 of t3\nid 3 at 1084 of t4\nid 4 at 1156 of t5\nface at 1213: 1 2 3\nface at 1225: 1 3 4";

// Three points, their list and their face.
const THREE_POINTS: &[u8] =
    b"<?xml version=\"1.0\" encoding=\"UTF-8\"?>\n<LandXML xmlns=\"http://www.landxml.org/schema/LandXML-1.2\" version=\"1.2\" date=\"2000-01-01\" time=\"00:00:00\">\n<Units><Metric linearUnit=\"meter\"/></Units>\n<Surfaces>\n<Surface name=\"ground\">\n<SourceData>\n<Boundaries>\n</Boundaries>\n<Breaklines>\n</Breaklines>\n<DataPoints><PntList3D>\n0.000 0.000 1.000\n10.000 0.000 -1.000\n0.000 10.000 -1.000\n</PntList3D></DataPoints>\n</SourceData>\n<Definition surfType=\"TIN\">\n<Pnts>\n<P id=\"1\">0.000 0.000 1.000</P>\n<P id=\"2\">10.000 0.000 -1.000</P>\n<P id=\"3\">0.000 10.000 -1.000</P>\n</Pnts>\n<Faces>\n<F>1 3 2</F>\n</Faces>\n</Definition>\n</Surface>\n</Surfaces>\n</LandXML>\n";

const THREE_POINTS_LISTS: &str =
    "Meter\nsurface ground at 202\ntriple 0 0 1000 at 317 323 329\ntriple 10000 0 -1000 at 335 342 348\ntriple 0 10000 -1000 at 355 361 368\ntriple 0 0 1000 at 460 466 472\ntriple 10000 0 -1000 at 492 499 505\ntriple 0 10000 -1000 at 526 532 539\nid 1 at 450 of t3\nid 2 at 482 of t4\nid 3 at 516 of t5\nface at 566: 1 3 2";

#[test]
fn each_cutting_of_whole_documents_holds_the_same_lists(rt: HostRuntime) {
    assert_eq!(rt; wrong_cut(rt.alloc(), SURVEY, SURVEY_LISTS), None);
    assert_eq!(rt;
        wrong_cut(rt.alloc(), THREE_POINTS, THREE_POINTS_LISTS),
        None
    );
    assert_eq!(rt; wrong_cut(rt.alloc(), b"<LandXML/>", "Meter"), None);
}

#[test]
fn each_cutting_of_what_programs_write_holds_the_same_lists(rt: HostRuntime) {
    let cases = [
        (
            "a mark, CR LF, single quotes, white round =, names in UTF-8",
            b"\xEF\xBB\xBF<?xml version='1.0' encoding='ISO-8859-1'?>\r\n<LandXML xmlns:xsi = 'x' xsi:schemaLocation='a b'>\r\n<Units><Imperial linearUnit\t=\r\n'USSurveyFoot' areaUnit='a'/><Metric linearUnit='meter'/></Units>\r\n<Surfaces>\r\n<Surface name='Gel\xC3\xA4nde &amp; &lt;B&gt;&#10;\r\n&#x20AC;' desc='x &nbsp; y'>\r\n<Definition>\r\n<Pnts>\r\n<P id='a'>\r\n\t1.5\r\n2e1 -.25E0\r\n</P>\r\n</Pnts></Definition></Surface></Surfaces></LandXML>\r\n".as_slice(),
            "USSurveyFoot\nsurface Gel<c3><a4>nde & <B>\n <e2><82><ac> at 210\ntriple 1500 20000 -250 at 321 326 330\nid a at 308 of t0",
        ),
        (
            "comments and elements in lists, empty elements, further elements",
            b"<LandXML><Surfaces><x><Surface name=\"no\"/></x><Surface name=\"s\"><SourceData><Boundaries><Boundary bndType=\"void\" edgeTrim=\"true\"><PntList3D>1 2<!-- 9 -->3 4<?x 9?>5<P id=\"7\">8</P>6</PntList3D><PntList2D/><PntList2D>7 8</PntList2D><PntList3D> 10 11 12 </PntList3D></Boundary><Boundary bndType=\"island\"/></Boundaries><DataPoints code=\"k\"><PntList2D>1 2</PntList2D><PntList3D></PntList3D></DataPoints><Breaklines><Breakline/><Feature><PntList3D>1 1 1</PntList3D></Feature></Breaklines></SourceData><Watersheds><Pnts><P id=\"1\">1 1</P></Pnts></Watersheds></Surface></Surfaces></LandXML>".as_slice(),
            "Meter\nsurface s at 46\ntriple 1000 2000 3000 at 140 142 153\ntriple 4000 5000 6000 at 155 163 179\ntriple 10000 11000 12000 at 242 245 248\npair 7000 8000 at 215\npair 1000 2000 at 347\nVoid at 88: t0 t1 p0 t2\nIsland at 274:\nBreakline at 410:",
        ),
        (
            "two surfaces of one name, numbers at their limits, the unit last",
            b"<LandXML><Surfaces><Surface name=\"1\"><Definition surfType=\"TIN\"><Faces><F n=\"0\">b a c</F></Faces><Pnts><P id=\"b\">0.0005 -0.0005 999999999.9994</P><P id=\"\">+1.e-3 .5 00</P></Pnts></Definition></Surface><Surface name=\"1\"/></Surfaces><Units><Metric linearUnit=\"foot\"/></Units></LandXML>".as_slice(),
            "Foot\nsurface 1 at 19\ntriple 1 -1 999999999999 at 113 120 128\ntriple 1 500 0 at 155 162 165\nid b at 103 of t0\nid  at 146 of t1\nface at 71: b a c\nsurface 1 at 201",
        ),
    ];
    for (what, bytes, wanted) in cases {
        assert_eq!(rt; wrong_cut(rt.alloc(), bytes, wanted), None, "{what}");
    }
}
